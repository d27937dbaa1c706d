// Where water that has come to a cell goes on to.
use sheet::step::Spot;

// To a cell; out, from an outlet; or nowhere yet, since the cell has to wait for another giver.
#[derive(Clone, Copy)]
pub enum Onward {
    To(Spot),
    Out,
    Waits,
}
