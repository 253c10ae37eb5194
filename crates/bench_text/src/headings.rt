// Reads the first line of a text: the number of places and the number of results.
ghost use Rattle.std.specs.Prelude.{◌≡◌};
ghost use Rattle.bench_text.specs.Heading.{header_of};

use crate::cuts::cut;
use crate::decimals::number;

#[derive(Clone, Copy)]
pub(crate) struct Header {
    pub places: usize,
    pub results: usize,
}

// The two numbers, with one space between them.
pub(crate) fn read_header(line: &[u8]) -> Option<Header>
    ensures { result ≡ header_of line.now }
{
    let (first, second) = cut(line, b' ');
    let places = number(first)?;
    let results = number(second)?;
    Some(Header { places, results })
}
