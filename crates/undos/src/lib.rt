// The undo listing: one pass over the record notes its keys and the prefixes that can be last, then each key is settled by its rank.
#![tactic(auto)]

pub mod listing;
