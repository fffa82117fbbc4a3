// The library for C and Rust: the entry points that take and give plain data (docs/ARCHITECTURE.md names those that do not) under the prefix residual_, those of pictures under picture_, with numbers, slices and the record of an edited block as arguments and a record or one number as answer. include/residual.h and include/picture.h declare the same for C.
#![tactic(auto)]

mod answers;
mod edits;
mod feeds;
mod levels;
mod lists;
mod pictures;
mod quantities;
mod searches;
mod tables;
mod tools;
mod transforms;
mod version;

pub use edits::{
    residual_edit, residual_edit_level, residual_open_and_edit, residual_open_block,
    residual_open_levels, residual_open_levels_and_edit, residual_open_levels_scaled,
    residual_open_levels_scaled_and_edit, residual_refresh_residual,
};
pub use feeds::{
    residual_feed_room, residual_feed_run, residual_listing_room, residual_listing_run,
};
pub use levels::{
    residual_dequantize_into_scalar_i16, residual_dequantize_into_scalar_i32,
    residual_dequantize_scaled_into_scalar_i16, residual_dequantize_scaled_into_scalar_i32,
    residual_dequantize_transform_skip_into_scalar_i16,
    residual_dequantize_transform_skip_into_scalar_i32,
    residual_dequantize_transform_skip_scaled_into_scalar_i16,
    residual_dequantize_transform_skip_scaled_into_scalar_i32, residual_scale_level,
    residual_scaling_coeff,
};
pub use lists::{residual_read_scaling_lists, residual_write_scaling_lists};
pub use pictures::{picture_checksum, picture_rebuild_block};
pub use quantities::{
    residual_dequant_params, residual_max_log2_transform_dynamic_range, residual_qp_bd_offset,
    residual_qp_prime, residual_rounding_bound, residual_transform_skip_params,
};
pub use searches::{
    residual_contributions, residual_find_edits, residual_find_level_edits,
    residual_find_level_edits_scaled,
};
pub use tables::{
    residual_dequantize_by_number_i16, residual_dequantize_by_number_i32,
    residual_dequantize_transform_skip_by_number_i16,
    residual_dequantize_transform_skip_by_number_i32, residual_drop_list, residual_list_at,
    residual_store_list,
};
pub use tools::{
    residual_bypass_residual, residual_find_levels, residual_find_levels_scaled,
    residual_transform_skip_residual, residual_transform_skip_scaled_residual,
};
pub use transforms::{
    residual_inv_transform_dst_into_scalar, residual_inv_transform_dst_into_scalar_extended,
    residual_inv_transform_dst_into_scalar16, residual_inv_transform_into_scalar,
    residual_inv_transform_into_scalar_extended, residual_inv_transform_into_scalar16,
};
pub use version::residual_version;

// What a call answers: 0, or a refusal's number with its place: a row and a column for a coefficient, else one number. The other answers
// add the values, zeros on refusal, and of edited blocks the record.
// Kept: number, row, column and place are fields of every answer itself, as in C's structs (include/residual.h): a struct for the four would make each another one for C.
#[repr(C)]
#[derive(Clone, Copy, Default)]
pub struct Answered {
    pub number: u32,
    pub row: u8,
    pub column: u8,
    pub place: usize,
}

// How many coefficients of a block were limited.
#[repr(C)]
#[derive(Clone, Copy, Default)]
pub struct CountAnswered {
    pub number: u32,
    pub row: u8,
    pub column: u8,
    pub limited: u16,
    pub place: usize,
}

// The coefficient of a level, whether the level was limited, and whether after that the result was.
#[repr(C)]
#[derive(Clone, Copy, Default)]
pub struct LevelAnswered {
    pub number: u32,
    pub row: u8,
    pub column: u8,
    pub level_limited: bool,
    pub result_limited: bool,
    pub place: usize,
    pub value: i32,
}

#[repr(C)]
#[derive(Clone, Copy, Default)]
pub struct NumberAnswered {
    pub number: u32,
    pub row: u8,
    pub column: u8,
    pub place: usize,
    pub value: u32,
}

#[repr(C)]
#[derive(Clone, Copy, Default)]
pub struct SignedAnswered {
    pub number: u32,
    pub row: u8,
    pub column: u8,
    pub place: usize,
    pub value: i32,
}

// The number under which a list was stored.
#[repr(C)]
#[derive(Clone, Copy, Default)]
pub struct StoreAnswered {
    pub number: u32,
    pub row: u8,
    pub column: u8,
    pub place: usize,
    pub stored: usize,
}

// How many bits were read or written.
#[repr(C)]
#[derive(Clone, Copy, Default)]
pub struct BitsAnswered {
    pub number: u32,
    pub row: u8,
    pub column: u8,
    pub place: usize,
    pub bits: usize,
}

#[repr(C)]
#[derive(Clone, Copy, Default)]
pub struct DequantAnswered {
    pub number: u32,
    pub row: u8,
    pub column: u8,
    pub place: usize,
    pub factor: i64,
    pub add: i64,
    pub shift: u32,
    pub clip_min: i64,
    pub clip_max: i64,
}

#[repr(C)]
#[derive(Clone, Copy, Default)]
pub struct TransformSkipAnswered {
    pub number: u32,
    pub row: u8,
    pub column: u8,
    pub place: usize,
    pub factor: i64,
    pub add: i64,
    pub shift: u32,
    pub clip_min: i64,
    pub clip_max: i64,
    pub tr_add: i32,
    pub tr_shift: i32,
}

// The record of an edited block, as it goes from call to call: `dst` is its kind; from `levels` on, how it was opened and what its levels are scaled by.
// Kept: C's struct (`residual_block`) has the kind as the flag `dst`, depth and flag apart, and flags for what was given, since C has no `Option`.
#[repr(C)]
#[derive(Clone, Copy)]
pub struct Block {
    pub dst: bool,
    pub size: usize,
    pub depth: u8,
    pub extended: bool,
    pub columns: usize,
    pub levels: bool,
    pub qp_prime: i32,
    pub listed: bool,
    pub dc: u8,
    pub entries: [u8; 64],
}

// An answer with that record, and how many coefficients an opening on levels limited; 0 for every other call.
#[repr(C)]
#[derive(Clone, Copy)]
pub struct BlockAnswered {
    pub number: u32,
    pub row: u8,
    pub column: u8,
    pub limited: u16,
    pub place: usize,
    pub block: Block,
}

// The answer to a level edit: whether the level was limited, and whether after that the result was.
#[repr(C)]
#[derive(Clone, Copy)]
pub struct LevelEditAnswered {
    pub number: u32,
    pub row: u8,
    pub column: u8,
    pub level_limited: bool,
    pub result_limited: bool,
    pub place: usize,
    pub block: Block,
}

// What an opening answered, with the record after the last edit, and how many edits were given to the block.
#[repr(C)]
#[derive(Clone, Copy)]
pub struct ListAnswered {
    pub number: u32,
    pub row: u8,
    pub column: u8,
    pub limited: u16,
    pub place: usize,
    pub block: Block,
    pub edits: usize,
}

// Whether there was room, and where the text ends; 0 without room.
// Kept: a flag with the end beside it, as in C's struct (`residual_ran`), since C has no `Option`.
#[repr(C)]
#[derive(Clone, Copy)]
pub struct FeedRan {
    pub room: bool,
    pub end: usize,
}
