// An answer told to other languages: its number, and its four details in an area of 16 bytes. Assumes nothing.
#![tactic(auto)]

ghost use Rattle.std.specs.Prelude.{◌≡◌, length};
ghost use Rattle.model.specs.Answers.{told};
ghost use Rattle.call_tell.specs.Telling.{details_size, detail_bytes};

use call_answer::Details;
use model::Answer;

// Writes the details of an answer, and tells its number.
pub fn tell(answer: Answer, details: &mut [u8]) -> u32
    requires { length details.old ≡ details_size }
    ensures number { result ≡ (told answer).number }
    ensures bytes { details.new ≡ detail_bytes (told answer) }
{
    let said = Details::from(answer);
    let mut at = 0;
    for number in [said.first, said.second, said.third, said.fourth] {
        at = file_writer::put(details, at, &number.to_le_bytes());
    }
    said.number
}
