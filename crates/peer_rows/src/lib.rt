//! Bytes in and bytes out, where no stream shows them from outside: what sources give and sinks take, that a decoder and a session
//! go on after want of memory, what becomes of a peer and of a server whose devices fail, and that a server's workers turn jobs
//! side by side. What a peer writes for a stream is played by `checks/test_played_rows.py`.
#![tactic(auto)]

#[cfg(test)]
mod cuts;
#[cfg(test)]
mod devices;
#[cfg(test)]
mod frames;
#[cfg(test)]
mod plays;
#[cfg(test)]
mod served;
