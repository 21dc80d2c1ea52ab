// What a pass knows, as the rule of the lock has it. No value of these types is made when the program runs.
use std::collections::LinkedList;

// What one of two passes had seen and known when they were joined.
pub struct Part<E> {
    pub seen: LinkedList<(u64, E)>,
    pub known: LinkedList<u64>,
}

// What a pass knows: the value that the lock was made of, whether it has the turn, whether it is the only
// pass, whether it was joined into another, whether it found that all numbers were given, its own number,
// how many numbers it knows to be given (a later one is that or above), the numbers whose entries it has
// seen, the history that it has seen, and of the last join the two parts.
pub struct View<T, E> {
    pub opening: Option<T>,
    pub holds: bool,
    pub alone: bool,
    pub spent: bool,
    pub all_given: bool,
    pub number: Option<u64>,
    pub given: u64,
    pub known: LinkedList<u64>,
    pub seen: LinkedList<(u64, E)>,
    pub mine: Part<E>,
    pub other: Part<E>,
}
