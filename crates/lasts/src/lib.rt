// The prefixes of a term that can be the last to have been done, which the undo listing goes by: definitions and theorems (specs/Last.antt).
#![tactic(auto)]

// Such a prefix: its key, its action, and its scope, which is one more than the node number of the nearest restriction above that stops the
// action, 0 if there is none.
#[derive(Clone, Copy)]
pub struct Last {
    pub key: u16,
    pub action: u8,
    pub scope: u16,
}
