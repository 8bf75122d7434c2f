//! Which objects a query holds of, the order of hits, and pages of them.
//!
//! [`query_of`] of `query_text` reads a query; [`matches`] says whether it holds of an object. [`order_of`] reads the
//! keys by which hits are sorted: fields with a direction. [`page`] sorts the hits by them and gives one page, all by
//! reference.
//!
//! A contract sees a [`Query`] as the list of its tokens, an [`Order`] as its list of [`SortKey`], and [`Hits`] as the
//! list of objects. `holds` of `specs/Meaning.antt` is the meaning of a query, `IsHit` of `specs/Hits.antt` says what a
//! hit is. `IsPage` of `specs/Page.antt` says what a page of a list of hits is, in whatever order they were found, and
//! `IsPageOf` what the page of a set of hits is.
//!
//! Read [`matches`] and [`page`] first.
#![tactic(auto)]

mod hits;
mod law;
mod matching;
mod numbers;
mod order;
mod sorting;
#[cfg(test)]
mod tests;

pub use hits::{Hits, page};
pub use law::{
    a_scan_finds_the_hits, one_list_of_keys, one_meaning_of_a_text, one_page_of_the_same_hits,
    the_page_of_a_list_is_that_of_its_set,
};
pub use matching::matches;
pub use numbers::page_number;
pub use order::{Order, SortKey};
pub use query_text::{Query, QueryFault, Token, query_of};
pub use sorting::{OrderFault, order_of};
