// The exports for C: every public call, with `#[repr(C)]` values, byte slices and numbers. include/sumbadger.h declares them.
#![tactic(auto)]

mod cutter_calls;
mod mine_calls;
mod plain_calls;

pub use cutter_calls::{
    HostCutterAnswer, HostCutterPassed, HostGround, HostMovers, sumbadger_cutter_direction,
    sumbadger_cutter_ground_report, sumbadger_cutter_new_level, sumbadger_cutter_new_round,
    sumbadger_cutter_pass, sumbadger_cutter_render, sumbadger_cutter_respawn,
    sumbadger_cutter_step_by_sweeps, sumbadger_cutter_step_enemies, sumbadger_cutter_step_player,
    sumbadger_cutter_who,
};
pub use mine_calls::{
    HostEnemies, HostMineAnswer, HostMinePassed, sumbadger_mine_gravity, sumbadger_mine_load,
    sumbadger_mine_move_enemies, sumbadger_mine_pass, sumbadger_mine_render,
    sumbadger_mine_step_player, sumbadger_mine_who,
};
pub use plain_calls::{HostFound, HostPage, sumbadger_page, sumbadger_start};
