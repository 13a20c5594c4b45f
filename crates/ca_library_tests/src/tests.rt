//! The tests, by what they try.

mod answer_texts;
mod bit_planes;
mod callers;
mod cut_runs;
mod devices;
mod drawing;
mod expected;
mod generations;
mod many;
mod planes;
mod squares;
mod writers;
