// What `init_slave` is called with.

// The Rust's `SlaveAddress`.
#[derive(Clone, Copy)]
pub enum SlaveAddress {
    SevenBit(u16),
    TenBit(u16),
}

// The Rust's `SlaveConfig`.
#[derive(Clone, Copy)]
pub struct SlaveConfig {
    pub address: SlaveAddress,
    pub second_address: Option<u8>,
    pub general_call: bool,
    pub clock_stretching: bool,
}
