//! A legal report, and reports that are spoiled in one place.

mod legal;
mod report;
mod spoiled;
