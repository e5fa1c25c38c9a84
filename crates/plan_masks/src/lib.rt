// The offsets of an assignment file as masks, one for each circuit. Assumes nothing.
#![tactic(auto)]

ghost use Rattle.std.specs.Prelude.{◌≡◌, length};
ghost use Rattle.model.specs.Sizes.{cycle_most};
ghost use Rattle.model.specs.Search.{Rises};
ghost use Rattle.num_mask.specs.Bits.{offsets};
ghost use Rattle.plan_masks.specs.Masks.{Risings, MasksOf};

use file_records::Places;
use model::HEAD_SIZE;
use plan::Masks;

// The mask of rising offsets.
fn mask_of(rising: &[u8]) -> u32
    requires { Rises 0 cycle_most rising.now }
    ensures { offsets result ≡ rising.now }
{
    let mut mask = 0u32;
    for offset in rising {
        mask = num_mask::with(mask, u32::from(*offset));
    }
    mask
}

// Puts the offsets of each circuit into its mask: its record starts at the byte that stands in `starts`.
pub fn fill(assignment: &[u8], starts: &Places, masks: &mut Masks)
    requires { Risings assignment.now starts.now.items }
    ensures { MasksOf assignment.now starts.now.items masks.new (length starts.now.items) }
{
    for (c, start) in starts.iter().enumerate() {
        let first = *start + HEAD_SIZE;
        let count = file_records::word(assignment, *start);
        masks[c] = mask_of(&assignment[first..first + count]);
    }
}
