// The command line: arguments, standard input, files, answers.
pub mod arguments;
pub mod command;
pub mod commands;
pub mod files;
pub mod help;
pub mod input;
pub mod names;
pub mod numbers;
pub mod output;
pub mod serving;
pub mod status;
pub mod system;
