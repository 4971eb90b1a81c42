//! A module for each subject.
mod actions;
mod buses;
mod equal;
mod messages;
mod modes;
mod numbers;
mod plain;
mod plans;
mod statuses;
mod terminals;
mod texts;
mod trunks;
mod words;
