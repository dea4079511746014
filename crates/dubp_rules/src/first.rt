/// The first of some rules whose check is false, as an `Option`, and None where each check is true.
///
/// It takes pairs of a rule and its check, as `first_of!(Rule::L01 => inner_hash_fits(block), ..)`, in the
/// order in which the rules are read. A check is an expression that gives a `bool`, and may have a `?`. No
/// check behind the first false one is made.
///
/// Where each check ensures that it is true exactly where its rule holds, a function that ends in
/// `first_of!` ensures `FirstOf Holds rules result` for the list of these rules.
#[macro_export]
macro_rules! first_of {
    ($($rule:expr => $check:expr),* $(,)?) => {
        $(if !$check { Some($rule) } else)* { None }
    };
}
