use walk::Order;

// A field of a line. `Numbers` stands for as many fields as there are numbers.
#[derive(Clone, Copy)]
pub(crate) enum Field<'a> {
    Text(&'a [u8]),
    Number(u64),
    Looks(Order<'a>),
    Numbers(&'a [u32]),
}
