//! Tests of the libraries over their public calls: what no command of the program reaches. That is calls that it doesn't make, planes and rules that
//! no file holds, and devices that fail under those calls.
#![tactic(auto)]

#[cfg(test)]
mod tests;
