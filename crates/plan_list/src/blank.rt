// What stands in each place of a list that is not in use, so that a list is known whole by its elements. Assumes nothing.

ghost use Rattle.std.specs.Prelude.{◌≡◌};

use model::{Send, Use};

pub trait Blank: Copy {
    ghost blank: { Self };

    fn blank() -> Self
        ensures { result ≡ blank };
}

impl Blank for Use {
    ghost blank = { record { what = 0; after = 0 } };

    fn blank() -> Use {
        Use::default()
    }
}

impl Blank for Send {
    ghost blank = { record { router = 0; inp = 0; out = 0; after = 0 } };

    fn blank() -> Send {
        Send::default()
    }
}
