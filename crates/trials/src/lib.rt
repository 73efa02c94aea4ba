// Many cases against the library: edges of tables, files cut at every byte, answer records, audits.
#![tactic(auto)]

#[cfg(test)]
mod answers;
#[cfg(test)]
mod audits;
#[cfg(test)]
mod files;
#[cfg(test)]
mod tables;
