//! What no clause of the libraries says and no byte shows: rows that call a function of theirs, handlers that are polled and run
//! as futures, want of memory, and the slots by which jobs go to workers. What a peer writes for a stream is played by
//! `checks/test_played_rows.py`, and tables are judged by `checks/test_methods.py`.
#![tactic(auto)]

#[cfg(test)]
mod desk;
#[cfg(test)]
mod numbers;
#[cfg(test)]
mod reading;
#[cfg(test)]
mod rows;
#[cfg(test)]
mod runs;
#[cfg(test)]
mod slots;
#[cfg(test)]
mod tables;
#[cfg(test)]
mod writing;
