//! A node's board as its workers ask it, and two kinds of boards: a plain table behind a lock, and the words of a race
//! board.
#![tactic(auto)]

mod control_board;
mod data_board;
mod plain_board;
mod plain_control;
mod plain_control_board;
mod plain_data;
mod plain_data_board;
mod plain_listing;
mod plain_rows;
mod plain_table;
mod race_control;
mod race_data;

pub use control_board::ControlBoard;
pub use data_board::DataBoard;
pub use plain_board::{PlainBoard, PlainParts};
pub use plain_control::PlainControlSeat;
pub use plain_control_board::PlainControl;
pub use plain_data::PlainDataSeat;
pub use plain_data_board::PlainData;
pub use race_control::RaceControl;
pub use race_data::RaceData;
