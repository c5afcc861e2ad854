/// The head of a frozen list, and what is kept with it.
#[derive(Drop)]
pub struct Parked<B> {
    pub head: usize,
    pub body: B,
}
