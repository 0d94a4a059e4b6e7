//! What the worked rows of the language mean by its definitions, as laws.

pub mod rows;

pub use rows::worked_rows;
