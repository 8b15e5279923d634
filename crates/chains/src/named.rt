// The three chains of an object: document 01, "The table".
#[derive(Clone, Copy)]
pub enum Chain {
    Entry, // threads that wait for the monitor
    Contention, // threads that wait for the word
    Waiting, // threads that wait to be notified
}
