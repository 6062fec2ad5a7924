// The mathematics below the layers: floors and multiples of integers, the greatest of some numbers that is not after
// another, and the Gregorian calendar over every integer year. Definitions stand in specs, lemmas in proofs.
#![tactic(auto)]
