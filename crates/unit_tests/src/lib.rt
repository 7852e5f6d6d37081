//! Tests of what no script of `rows` can express: zones beside jiff's own, the acts of a deadline,
//! calendars, sessions, clients of a socket, copies of files, and what is left in a database.
#![tactic(auto)]

#[cfg(test)]
mod acts;
#[cfg(test)]
mod calendars;
#[cfg(test)]
mod copies;
#[cfg(test)]
mod dockets;
#[cfg(test)]
mod sessions;
#[cfg(test)]
mod socket;
#[cfg(test)]
mod streams;
#[cfg(test)]
mod transactions;
#[cfg(test)]
mod zones;
