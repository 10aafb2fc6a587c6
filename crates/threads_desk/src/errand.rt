//! What letters are about.

/// What may be asked at a desk that was opened about a `K`, and what may be told to who asked.
pub trait Errand<A, T, K> {
    ghost asks: { K → A → Type 0 };

    ghost tells: { K → A → T → Type 0 };
}
