// A table in memory: its header. specs/Table.antt has what a sound table is, and the table that it reads as.
#![tactic(auto)]

// The table by value: the links of its two roots, records used, text used.
#[derive(Clone, Copy)]
pub struct Header {
    pub names: u32,
    pub modules: u32,
    pub records: u32,
    pub text: u32,
}
