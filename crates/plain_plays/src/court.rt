//! The courts of the stored dockets.
use anyhow::{Error, anyhow};
use court_days::Court;
use std::alloc::Global;

/// The court's zone, Eastern time.
pub const ZONE: &str = "EST5EDT,M3.2.0,M11.1.0";

/// The court of a zone, which closes at five.
pub fn court_of(alloc: Global, zone: &str) -> Result<Court, Error> {
    match Court::read(alloc, zone, "17:00") {
        Ok(court) => Ok(court),
        Err(_) => Err(anyhow!("no court")),
    }
}

/// The court of Eastern time.
pub fn eastern_court(alloc: Global) -> Result<Court, Error> {
    court_of(alloc, ZONE)
}
