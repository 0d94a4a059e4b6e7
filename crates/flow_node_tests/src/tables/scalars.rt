pub const SCALARS: &str = r"
# The transducers over scalars.

node source units 2
out u u .
ends

node source bools T F
out T F .
ends

node source ints -9223372036854775808 0 9223372036854775807
out -9223372036854775808 0 9223372036854775807 .
ends

node const 5
in u u .
out 5 5 .
ends

node const T
in u 1 u .
out T
faults Shape 7

# Operators.

node unary one negate
in 3 -2 0 .
out -3 2 0 .
ends

node unary one negate
in 1 -9223372036854775808 .
out -1
faults Overflow 7

node unary one not
in T F .
out F T .
ends

node binary one less
in 1 2 3 .
in 2 2 2 .
out T F F .
ends

node binary one divide
in -7 1 1 .
in 2 0 1 .
out -3
faults Divide 7

node binary one add
in 1 2 .
in 1 .
out 2
faults Shape 7

# Copies and sinks.

node fork int 3
in 4 5 .
out 4 5 .
out 4 5 .
out 4 5 .
ends

node fork vec 2
in [1] .
out [1] .
out [1] .
ends

node sink bool
in T F T .
ends

node sink bool
in T u
faults Shape 7

# Counts.

node iota
in 3 0 1 .
out F F F T T F T .
out 0 1 2 0 .
ends

node iota
in 1 -1 .
out F T
out 0
faults NegativeCount 7

node units_of
in F F T T F T .
out u u u .
ends

node length one
in F F T T F T .
out 2 0 1 .
ends

# Scans. The last element of a segment is not added.

node scan_add one
in F F F T T F T .
in 2 1 3 9 .
out 0 2 3 0 .
ends

node scan_add one
in F F T F F F T .
in 9223372036854775807 1 9223372036854775807 1 1 .
out 0 9223372036854775807 0 9223372036854775807
faults Overflow 7

# A scan adds with the element that the sum is written for, and not with its flag.

node scan_add one
in F F F
in 9223372036854775807 1
out 0 9223372036854775807
reads 1

node scan_add one
in F F F
in 9223372036854775807 1 1
out 0 9223372036854775807
faults Overflow 7

# Reductions.

node reduce one sum
in F F T T F T .
in 2 1 9 .
out 3 0 9 .
ends

node reduce one max
in F F T T F T .
in -2 -1 9 .
out -1
faults EmptyMax 7

node reduce one all
in F F T T F T .
in T F T .
out F T T .
ends

node reduce one any
in F F T T F T .
in T F F .
out T F F .
ends

# Ends within an instance, and items where an end is due.

node reduce one sum
in F .
in 1 .
out
faults Shape 7

node reduce one sum
in F T .
in 1 1 .
out 1
faults Shape 7

# Items of another kind at the first and at the second port.

node reduce one sum
in 3 .
in 1 .
out
faults Shape 7

node reduce one sum
in F T .
in T .
out
faults Shape 7

node binary one and
in T .
in 1 .
out
faults Shape 7

node length one
in F .
out
faults Shape 7

# An item of another kind is a fault, at whichever port it comes.

node const 5
in T
out
faults Shape 7

node unary one negate
in T
out
faults Shape 7

node unary one not
in 1
out
faults Shape 7

node binary one add
in F
in 1
out
faults Shape 7

node binary one add
in 1
in [1]
out
faults Shape 7

node fork unit 2
in u [1]
out u
out u
faults Shape 7

node iota
in u
out
out
faults Shape 7

node units_of
in F 1
out u
faults Shape 7

node scan_add one
in u
in 1
out
faults Shape 7

node scan_add one
in F
in F
out
faults Shape 7

node reduce one all
in F
in 1
out
faults Shape 7

node length one
in F 1
out
faults Shape 7

# Integers over 64 bits. Where nothing is computed they pass, and so they do where the value of the first dialect lies in
# its range.

node source ints -170141183460469231731687303715884105728 9223372036854775808 170141183460469231731687303715884105727
out -170141183460469231731687303715884105728 9223372036854775808 170141183460469231731687303715884105727 .
ends

node const 170141183460469231731687303715884105727
in u .
out 170141183460469231731687303715884105727 .
ends

node fork int 2
in 9223372036854775808 -170141183460469231731687303715884105728 .
out 9223372036854775808 -170141183460469231731687303715884105728 .
out 9223372036854775808 -170141183460469231731687303715884105728 .
ends

node sink int
in 170141183460469231731687303715884105727 .
ends

node iota
in -9223372036854775809
out
out
faults NegativeCount 7

# More numbers than 64 bits count: the first of them.

node iota
in 9223372036854775808
steps 6
out F F F
out 0 1
writes 1

node iota
in 170141183460469231731687303715884105727
steps 6
out F F F
out 0 1
writes 1

node binary one less
in 9223372036854775808 -170141183460469231731687303715884105728 .
in 9223372036854775807 170141183460469231731687303715884105727 .
out F T .
ends

node binary one subtract
in 9223372036854775808 -9223372036854775809 .
in 1 -1 .
out 9223372036854775807 -9223372036854775808 .
ends

node reduce one max
in F F T .
in 9223372036854775808 170141183460469231731687303715884105727 .
out 170141183460469231731687303715884105727 .
ends

# The least and the greatest integers of both dialects, and those beyond them.

node unary one negate
in 9223372036854775807 9223372036854775808 -9223372036854775808
out -9223372036854775807 -9223372036854775808
faults Overflow 7

node unary one negate
in 9223372036854775809
out
faults Overflow 7

node unary two negate
in -9223372036854775808 9223372036854775809 170141183460469231731687303715884105727 -170141183460469231731687303715884105728
out 9223372036854775808 -9223372036854775809 -170141183460469231731687303715884105727
faults Overflow 7

node binary one add
in 9223372036854775807 -9223372036854775808 9223372036854775806 9223372036854775807
in 0 0 1 1
out 9223372036854775807 -9223372036854775808 9223372036854775807
faults Overflow 7

node binary one add
in -9223372036854775807 -9223372036854775808
in -1 -1
out -9223372036854775808
faults Overflow 7

node binary two add
in 9223372036854775807 -9223372036854775808 170141183460469231731687303715884105726 170141183460469231731687303715884105727
in 1 -1 1 1
out 9223372036854775808 -9223372036854775809 170141183460469231731687303715884105727
faults Overflow 7

node binary two add
in -170141183460469231731687303715884105727 -170141183460469231731687303715884105728
in -1 -1
out -170141183460469231731687303715884105728
faults Overflow 7

node binary one multiply
in 4611686018427387904 4611686018427387904
in -2 2
out -9223372036854775808
faults Overflow 7

node binary two multiply
in 4611686018427387904 9223372036854775808 9223372036854775808
in 2 -18446744073709551616 18446744073709551616
out 9223372036854775808 -170141183460469231731687303715884105728
faults Overflow 7

node binary one divide
in -9223372036854775808 -9223372036854775808
in 1 -1
out -9223372036854775808
faults Overflow 7

node binary two divide
in -9223372036854775808 -170141183460469231731687303715884105728 -170141183460469231731687303715884105728
in -1 1 -1
out 9223372036854775808 -170141183460469231731687303715884105728
faults Overflow 7

node scan_add one
in F F F F
in -9223372036854775808 9223372036854775807 9223372036854775807 0
out 0 -9223372036854775808 -1 9223372036854775806
reads 0

node scan_add one
in F F F
in -9223372036854775808 -1 0
out 0 -9223372036854775808
faults Overflow 7

node scan_add one
in F F
in 9223372036854775808 0
out 0
faults Overflow 7

node scan_add two
in F F F F F
in 9223372036854775807 1 170141183460469231722463931679029329919 1 0
out 0 9223372036854775807 9223372036854775808 170141183460469231731687303715884105727
faults Overflow 7

node scan_add two
in F F F F
in -9223372036854775808 -170141183460469231722463931679029329920 -1 0
out 0 -9223372036854775808 -170141183460469231731687303715884105728
faults Overflow 7

node reduce one sum
in F F T F F T F F
in 9223372036854775806 1 -9223372036854775807 -1 9223372036854775807 1
out 9223372036854775807 -9223372036854775808
faults Overflow 7

node reduce one sum
in F
in -9223372036854775809
out
faults Overflow 7

node reduce two sum
in F F T F F T F F T F F
in 9223372036854775807 1 170141183460469231731687303715884105726 1 -170141183460469231731687303715884105727 -1 170141183460469231731687303715884105727 1
out 9223372036854775808 170141183460469231731687303715884105727 -170141183460469231731687303715884105728
faults Overflow 7

node reduce two sum
in F F
in -170141183460469231731687303715884105728 -1
out
faults Overflow 7

node reduce two max
in F F F T .
in -170141183460469231731687303715884105728 170141183460469231731687303715884105727 9223372036854775807 .
out 170141183460469231731687303715884105727 .
ends

node length two
in F F T T F T .
out 2 0 1 .
ends

node length two
in F 1
out
faults Shape 7
";
