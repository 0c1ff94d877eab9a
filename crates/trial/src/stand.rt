// A card on its device.
use card::opened::Opened;
use card::surveyed::Surveyed;
use device::Device;

// Closed after a format or a cut, then opened, then surveyed.
#[derive(Drop)]
pub enum Stand<D: Device> {
    Closed(D),
    Opened(Opened<D>),
    Surveyed(Surveyed<D>),
}
