// Up to four places of a code record, strictly ascending.
ghost use Rattle.std.specs.Prelude.{◌≡◌, true, nat_lt, take};
ghost use Rattle.code.specs.Lawful.{all_zero, ascending, places_lawful};

/// The first `count` fields are places, and the others are zero; in fixed memory, and copied with its record.
#[derive(Clone, Copy, Debug)]
pub struct Places {
    pub count: u8,
    pub fields: [u16; 4],
    ghost lawful: { places_lawful count fields ≡ true },
}

impl Places {
    ghost use Rattle.code.specs.Layout.{places_of};

    /// The first `count` fields as places, if they are lawful.
    pub fn new(count: u8, fields: [u16; 4]) -> Option<Places>
        ensures { result ≡ places_of count fields }
    {
        if !lawful_places(count, &fields) {
            return None;
        }
        Some(Places { count, fields })
    }

    // The places themselves.
    pub(crate) fn as_slice(&self) -> &[u16]
        ensures { result.now ≡ take self.now.count self.now.fields }
    {
        &self.fields[..usize::from(self.count)]
    }
}

// Whether the first `count` fields ascend strictly and the others are zero.
fn lawful_places(count: u8, fields: &[u16; 4]) -> bool
    ensures { result ≡ places_lawful count fields.now }
{
    let Some((used, unused)) = fields.split_at_checked(usize::from(count)) else {
        return false;
    };
    ascends(used) && all_zero(unused)
}

fn ascends(places: &[u16]) -> bool
    ensures { result ≡ ascending places.now }
{
    places.is_sorted_by(|&a, &b| in_order(a, b))
}

// Whether one place may stand before the other.
fn in_order(a: u16, b: u16) -> bool
    ensures { result ≡ nat_lt a b }
{
    a < b
}

pub(crate) fn all_zero(fields: &[u16]) -> bool
    ensures { result ≡ all_zero fields.now }
{
    fields.iter().all(|&field| field == 0)
}
