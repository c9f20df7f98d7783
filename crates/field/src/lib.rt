// Key fields: four bytes at a place of a lent record, loaded and stored in either byte order.
#![tactic(auto)]

ghost use Rattle.std.specs.Prelude.{◌≡◌, ◌+◌, ◌*◌, ◌/◌, ◌%◌, ◌<◌, ◌≤◌, [], ◌∷◌, length, get_or};
ghost use Rattle.refusal.specs.Answer.{accepted, answering};
ghost use Rattle.field.specs.Layout.{arranged};
ghost use Rattle.field.specs.Field.{
  bytes_at,
  put_bytes,
  field_at,
  stored,
  OrderOfCode,
  order_of,
  runs_past,
  field_tests,
  load_of,
  store_of,
};
ghost use Rattle.field.specs.Readings.{order_is, loaded_is, store_leaves};

use refusal::Refusal;

// Which byte of a number stands first.
#[derive(Clone, Copy, Debug, PartialEq, Eq)]
pub enum ByteOrder {
    HighFirst,
    LowFirst,
}

// The order that a code names; any code over 1 names none and is refused.
impl TryFrom<u32> for ByteOrder {
    type Error = Refusal;

    ghost try_from_gives = { OrderOfCode };

    fn try_from(code: u32) -> Result<ByteOrder, Refusal> {
        match code {
            0 => Ok(ByteOrder::HighFirst),
            1 => Ok(ByteOrder::LowFirst),
            _ => Err(Refusal::NoSuchOrder),
        }
    }
}

// The number of four bytes, the high byte first.
#[tactic(auto, using(crate::proofs::Laws::joined))]
fn join(four: [u8; 4]) -> u32
    ensures { result ≡ get_or four 0 0 * 16777216 + get_or four 1 0 * 65536 + get_or four 2 0 * 256 + get_or four 3 0 }
{
    let [first, second, third, last] = four;
    (u32::from(first) << 24) | (u32::from(second) << 16) | (u32::from(third) << 8) | u32::from(last)
}

// The four bytes of a number, the high byte first.
fn split(key: u32) -> [u8; 4]
    ensures { result ≡ key / 16777216 % 256 ∷ key / 65536 % 256 ∷ key / 256 % 256 ∷ key % 256 ∷ [] }
{
    [
        ((key >> 24) & 255) as u8,
        ((key >> 16) & 255) as u8,
        ((key >> 8) & 255) as u8,
        (key & 255) as u8,
    ]
}

// Four bytes arranged from high first to the order, or back.
fn arrange(order: ByteOrder, mut four: [u8; 4]) -> [u8; 4]
    ensures { result ≡ arranged order four }
{
    match order {
        ByteOrder::HighFirst => four,
        ByteOrder::LowFirst => {
            four.reverse();
            four
        }
    }
}

// The four bytes from a place on. This and the next ask that the field lies in its record, which the tests have shown.
fn four_at(bytes: &[u8], place: usize) -> [u8; 4]
    requires { place + 4 ≤ length bytes.now }
    ensures { result ≡ bytes_at 4 bytes.now place }
{
    bytes[place..place + 4].try_into().unwrap()
}

// Four bytes written from a place on, and no other.
fn put_four(bytes: &mut [u8], place: usize, four: [u8; 4])
    requires { place + 4 ≤ length bytes.old }
    ensures { bytes.new ≡ put_bytes bytes.old place four }
{
    bytes[place..place + 4].copy_from_slice(&four);
}

// Whether a field at a place runs past the end of a record of this length.
// 4 is taken from the length, so that no sum can wrap.
fn runs_past(len: usize, place: usize) -> bool
    ensures { result ≡ runs_past len place }
{
    len < 4 || len - 4 < place
}

// The tests of both entry points, in their order: 11, then 10. Accepted, the order that the code names.
#[tactic(auto, unfolding(crate::specs::Field::field_tests))]
fn field_asks(len: usize, place: usize, code: u32) -> Result<ByteOrder, Refusal>
    ensures { order_is result ≡ answering (field_tests len place code) (accepted (order_of code)) }
{
    let order = ByteOrder::try_from(code)?;
    if runs_past(len, place) {
        return Err(Refusal::NoRoom);
    }
    Ok(order)
}

// The key that the field at a place holds in an order.
#[tactic(auto, using(crate::proofs::Laws::counted, crate::proofs::Laws::held))]
fn key_at(bytes: &[u8], place: usize, order: ByteOrder) -> u32
    requires { place + 4 ≤ length bytes.now }
    ensures { result ≡ field_at order 4 bytes.now place }
{
    join(arrange(order, four_at(bytes, place)))
}

// The key's four bytes written to the field at a place in an order, and no other byte.
#[tactic(auto, unfolding(crate::specs::Field::stored, crate::specs::Layout::bytes_in))]
fn put_key(bytes: &mut [u8], place: usize, order: ByteOrder, key: u32)
    requires { place + 4 ≤ length bytes.old }
    ensures { bytes.new ≡ stored order 4 bytes.old place key }
{
    put_four(bytes, place, arrange(order, split(key)))
}

// The key that the field at a place holds in the order that the code names, or the refusal. The code is any number,
// and to refuse a wrong one (11) is asked of it.
#[tactic(auto, using(crate::proofs::Entry::is_inside), unfolding(crate::specs::Field::load_of))]
pub fn load(bytes: &[u8], place: usize, code: u32) -> Result<u32, Refusal>
    ensures { loaded_is result ≡ load_of bytes.now place code }
{
    let order = field_asks(bytes.len(), place, code)?;
    Ok(key_at(bytes, place, order))
}

// Writes the key's four bytes, in the order that the code names, to the field at a place,
// or refuses and writes nothing.
#[tactic(auto, using(crate::proofs::Entry::is_inside), unfolding(crate::specs::Field::store_of))]
pub fn store(bytes: &mut [u8], place: usize, code: u32, key: u32) -> Result<(), Refusal>
    ensures { store_leaves bytes.new result ≡ store_of bytes.old place code key }
{
    let order = field_asks(bytes.len(), place, code)?;
    put_key(bytes, place, order, key);
    Ok(())
}
