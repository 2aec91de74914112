// What a view and a book question write into a lent buffer.
#![tactic(auto)]

pub mod asking;
mod book;
mod lines;
mod listing;
mod page;
mod rows;
mod view;
