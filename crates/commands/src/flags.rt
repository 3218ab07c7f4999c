// The flags of a unit: a payload was received, a payload was acknowledged, the last retry was in vain.
#[derive(Clone, Copy, Debug, PartialEq, Eq)]
pub struct Flags {
    pub rx_dr: bool,
    pub tx_ds: bool,
    pub max_rt: bool,
}
