//! Tests of sessions that hand calls back to their clients, by the bytes of their frames and with clients
//! that talk to them. They stand above the crates that they test, so that no crate is proved twice.
#![tactic(auto)]

#[cfg(test)]
mod bench;
#[cfg(test)]
mod books;
#[cfg(test)]
mod busy;
#[cfg(test)]
mod calls;
#[cfg(test)]
mod dice;
#[cfg(test)]
mod fetching;
#[cfg(test)]
mod finishing;
#[cfg(test)]
mod handing;
#[cfg(test)]
mod judging;
#[cfg(test)]
mod meaning;
#[cfg(test)]
mod rooms;
#[cfg(test)]
mod scripts;
#[cfg(test)]
mod talking;
#[cfg(test)]
mod words;
