//! A table by which most keys are told from the wanted ones at one look.
ghost use Rattle.std.specs.Prelude.{◌≡◌, ◌<◌, length, slice_index};
ghost use Rattle.json_text.specs.Marking.{HasMarks, mark_of};

use plan_base::Text;

/// How many marks there are.
pub const MARKS: usize = 256;

/// The mark of a key, by its first and its last byte and its length.
#[inline(always)]
#[tactic(auto, unfolding(crate::specs::Marking::mark_of))]
fn mark_of(key: &[u8]) -> usize
    ensures mark { result ≡ mark_of key.now }
    ensures within { result < 256 }
{
    let len = key.len();
    if len == 0 {
        return 0;
    }
    (key[0] as usize + 4 * key[len - 1] as usize + 16 * (len % 16)) % MARKS
}

/// One more than a place, or the last number of a byte.
fn place_number(place: usize) -> u8
    ensures { 0 < result }
{
    if place < 255 { place as u8 + 1 } else { 255 }
}

/// Puts at the mark of each key a number that tells its place, where that is below 255.
#[tactic(auto, using(crate::proofs::MarkTable::no_marks))]
pub fn put_marks(keys: &[Text], marks: &mut [u8])
    requires { length marks.old ≡ 256 }
    ensures { HasMarks keys.now marks.new }
{
    for place in 0..keys.len() {
        let key = keys[place].as_str().as_bytes();
        marks[mark_of(key)] = place_number(place);
    }
}

/// The number at the mark of a key.
#[inline(always)]
pub fn marked(marks: &[u8], key: &[u8]) -> u8
    requires { length marks.now ≡ 256 }
    ensures { result ≡ slice_index marks.now (mark_of key.now) }
{
    marks[mark_of(key)]
}
