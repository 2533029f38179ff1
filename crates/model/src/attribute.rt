// What an object's attribute says: in which order tasks wait at it (request T-10).
ghost use Rattle.std.specs.Prelude.{◌≡◌};
ghost use Rattle.model.specs.Waits.{is_order, by_priority};

use itron::attribute::{TA_TFIFO, TA_TPRI};

// Whether an attribute names an order.
pub fn is_order(attribute: u32) -> bool
    ensures { result ≡ is_order attribute }
{
    attribute == TA_TFIFO || attribute == TA_TPRI
}

// Whether tasks stand by priority; otherwise they stand as they came.
pub fn by_priority(attribute: u32) -> bool
    ensures { result ≡ by_priority attribute }
{
    attribute == TA_TPRI
}
