//! Tests of the server's public functions and of its command line. They are a separate crate so that
//! the server is not proved again for its tests.
#![tactic(auto)]

#[cfg(test)]
mod clients;
#[cfg(test)]
mod clock;
#[cfg(test)]
mod close_output;
#[cfg(test)]
mod command_line;
#[cfg(test)]
mod connections;
#[cfg(test)]
mod dialogues;
#[cfg(test)]
mod line_session;
#[cfg(test)]
mod loops;
#[cfg(test)]
mod nesting;
#[cfg(test)]
mod saved_output;
#[cfg(test)]
mod wakeups;
