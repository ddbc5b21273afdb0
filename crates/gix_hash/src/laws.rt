//! Laws of ids, prefixes, their spellings and digests.

mod digests;
mod ids;
mod prefixes;

pub use digests::{digest_of_pieces, told_amounts_add_up};
pub use ids::{
    bytes_fit, ids_are_equal, lower_case_is_written, order_of_ids, order_of_views,
    printed_id_reads_back, text_of_id_is_read, text_spells_one_id, views_are_equal,
    written_bytes_are_the_id,
};
pub use prefixes::{
    comparisons_fall, equal_is_beginning, matches_nest_or_are_disjoint, order_of_prefixes,
    own_prefix_is_equal, prefixes_are_equal, printed_change_id_reads_back,
    printed_prefix_reads_back, reverse_texts_are_ordered_oppositely, text_of_change_id_is_read,
    text_spells_one_change_id,
};
