// A draft: a query that is being put together. What every draft keeps to stands in its type, so opening asks nothing.

use crate::types::{Filter, Join, Shown};
use cells::headings::Heading;
use std::alloc::Global;
use std::marker::Model;

pub mod calls;
mod grants;
pub mod reads;
pub mod values;

#[derive(Drop)]
pub struct Draft {
    heap: Global,
    headings: Vec<Heading>,
    joins: Vec<Join>,
    filters: Vec<Filter>,
    shown: Vec<Shown>,
}

impl Model for Draft {
    ghost use Rattle.query.specs.Queries.{Query};

    ghost Value = { Query };

    ghost use Rattle.query.specs.Drafts.{query_held, Held};

    ghost view = { query_held };

    ghost invariant = { Held };
}
