// Which configurations `init_slave` takes.
ghost use Rattle.std.specs.Prelude.{◌≡◌};
ghost use Rattle.slave.specs.Reserved.{reserved, own_reserved, second_reserved, config_reserved};
ghost use Rattle.slave.specs.Init.{own_fault, second_fault, config_fault};
ghost use Rattle.slave_driver.specs.Validated.{validated};

use access::Error;
use slave::{SlaveAddress, SlaveConfig};

// Above 127, or 0 without general call; of ten bits, above 1023.
fn own_fault(own: SlaveAddress, general: bool) -> bool
    ensures { result ≡ own_fault own general }
{
    match own {
        SlaveAddress::SevenBit(a) => (127 < a) | ((a == 0) & !general),
        SlaveAddress::TenBit(a) => 1023 < a,
    }
}

// Above 127, or beside an address of ten bits.
fn second_fault(own: SlaveAddress, second: Option<u8>) -> bool
    ensures { result ≡ second_fault own second }
{
    match (own, second) {
        (_, None) => false,
        (SlaveAddress::SevenBit(_), Some(b)) => 127 < b,
        (SlaveAddress::TenBit(_), Some(_)) => true,
    }
}

#[tactic(auto, unfolding(slave::specs::Init::config_fault))]
fn config_fault(config: SlaveConfig) -> bool
    ensures { result ≡ config_fault config }
{
    own_fault(config.address, config.general_call)
        | second_fault(config.address, config.second_address)
}

// What UM10204 reserves.
fn is_reserved(a: u16) -> bool
    ensures { result ≡ reserved a }
{
    matches!(a, 0x01..=0x07 | 0x78..=0x7f)
}

// Of seven bits alone.
fn own_reserved(own: SlaveAddress) -> bool
    ensures { result ≡ own_reserved own }
{
    match own {
        SlaveAddress::SevenBit(a) => is_reserved(a),
        SlaveAddress::TenBit(_) => false,
    }
}

// 0 too, which is the general call.
fn second_reserved(second: Option<u8>) -> bool
    ensures { result ≡ second_reserved second }
{
    second.is_some_and(|b| (b == 0) | is_reserved(b as u16))
}

#[tactic(auto, unfolding(slave::specs::Reserved::config_reserved))]
fn config_reserved(config: SlaveConfig) -> bool
    ensures { result ≡ config_reserved config }
{
    own_reserved(config.address) | second_reserved(config.second_address)
}

// 9, then 17.
pub fn validate(config: SlaveConfig) -> Result<(), Error>
    ensures { result ≡ validated config }
{
    if config_fault(config) {
        return Err(Error::InvalidAddress);
    }
    if config_reserved(config) {
        return Err(Error::ReservedAddress);
    }
    Ok(())
}
