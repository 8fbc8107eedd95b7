/// The words before a function.
#[derive(Clone, Copy)]
pub struct Modifiers {
    pub is_static: bool,
    pub is_stock: bool,
    pub is_public: bool,
}
