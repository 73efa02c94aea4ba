// Many cases of operations on tables.
#![tactic(auto)]

#[cfg(test)]
mod operations;
