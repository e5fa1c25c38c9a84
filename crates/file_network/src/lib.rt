// The tests on the network record of a request, by its bytes. Assumes nothing.
#![tactic(auto)]

ghost use Rattle.std.specs.Prelude.{◌≡◌, ◌<◌, length};
ghost use Rattle.model.specs.Sizes.{word_end};
ghost use Rattle.model.specs.Bytes.{length_at, kind_at};
ghost use Rattle.model.specs.Reading.{routers_of, buffers_of, from_place, bad_link, network_head, network_verdict};

use file_records::{byte_in, link, word};
use model::{
    BUFFERS_AT, BUFFERS_MOST, COUNTS_SIZE, FROM_AT, Fault, HEAD_SIZE, KIND_AT, Kind, LINK_SIZE,
    ROUTERS_AT, ROUTERS_MOST, TO_AT,
};

// The tests on the numbers of the network record.
#[tactic(auto, using(file_records::proofs::Laws::tests), unfolding(model::specs::Reading::network_head, model::specs::Tests::neg))]
fn network_head(s: &[u8]) -> Result<(), Fault>
    ensures { result ≡ network_head (length s.now) (length_at s.now 0) (kind_at s.now 0) (routers_of s.now) (buffers_of s.now) }
{
    let have = s.len();
    let len = word(s, 0);
    let routers = word(s, ROUTERS_AT);
    let buffers = word(s, BUFFERS_AT);
    if have < HEAD_SIZE {
        return Err(Fault::Cut);
    }
    if word(s, KIND_AT) != usize::from(Kind::Network) {
        return Err(Fault::Kind);
    }
    if len < COUNTS_SIZE || COUNTS_SIZE + LINK_SIZE * BUFFERS_MOST < len || len % 2 != 0 {
        return Err(Fault::Length);
    }
    if have < HEAD_SIZE + len {
        return Err(Fault::Cut);
    }
    if routers < 1 || ROUTERS_MOST < routers || BUFFERS_MOST < buffers {
        return Err(Fault::Count);
    }
    if len != COUNTS_SIZE + LINK_SIZE * buffers {
        return Err(Fault::Length);
    }
    Ok(())
}

// Buffer b has an unknown router, leads back to its owner, or has the pair of an earlier buffer.
#[tactic(auto, using(file_records::proofs::Laws::tests), unfolding(model::specs::Reading::bad_link))]
fn bad_link(s: &[u8], routers: usize, b: usize) -> bool
    requires few { b < word_end }
    requires room { from_place b < length s.now }
    ensures { result ≡ bad_link s.now routers b }
{
    let of_b = link(s, b);
    routers <= usize::from(of_b.from)
        || routers <= usize::from(of_b.to)
        || of_b.from == of_b.to
        || (0..b).any(|a| {
            byte_in(s, FROM_AT + LINK_SIZE * a) == of_b.from
                && byte_in(s, TO_AT + LINK_SIZE * a) == of_b.to
        })
}

// The verdict on the network record, which starts at byte 0.
pub fn verdict(s: &[u8]) -> Result<(), Fault>
    ensures { result ≡ network_verdict s.now }
{
    network_head(s)?;
    let routers = word(s, ROUTERS_AT);
    if (0..word(s, BUFFERS_AT)).any(|b| bad_link(s, routers, b)) {
        return Err(Fault::Value);
    }
    Ok(())
}
