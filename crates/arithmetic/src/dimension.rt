// A dimension: an exponent of seconds and an exponent of volts. The default is that of a plain number.
use crate::exponent::Exponent;

/// The unit of a value: a power of seconds times a power of volts.
#[derive(Clone, Copy, Debug, Default, PartialEq, Eq)]
pub struct Dimension {
    pub seconds: Exponent,
    pub volts: Exponent,
}
