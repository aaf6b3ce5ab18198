// A list of calls on a sheet: each with the place for its reply.
use book::Book;
use refusal::Refusal;
use stack::Looked;
use walk::Order;

// A call on a sheet, with what it is handed. Any numbers may stand in it.
#[derive(Drop)]
pub enum Call<'a> {
    Lay {
        book: &'a Book,
        rule: usize,
        order: Order<'a>,
    },
    Look {
        allowance: u32,
    },
    Take {
        strip: Vec<u32>,
    },
    Wipe,
}

// What a call that is not refused answers.
#[derive(Clone, Copy)]
pub enum Answer {
    Done,
    Looked(Looked),
}

// What a call answers, or what refuses it.
pub type Reply = Result<Answer, Refusal>;

// A call and its reply, `None` until the call is made. An accepted take writes into the strip of its call.
#[derive(Drop)]
pub struct Turn<'a> {
    pub call: Call<'a>,
    pub reply: Option<Reply>,
}
