// How the token buffer stands for tokens: the definitions stand in specs/. Here are a token as the buffer has it, and the forms by their names.
#![tactic(auto)]

pub mod forms;

// A token: its form (`forms`), its argument and the place of its first unit.
#[derive(Clone, Copy)]
pub struct Mark {
    pub form: u16,
    pub argument: u16,
    pub start: u16,
}
