pub const SEGMENTS: &str = r"
# The transducers over segments.

# Flags.

node concat_flags
in F F F T .
in F F T T F T .
out F F F T .
ends

node append_flags
in F T T .
in T F F T .
out F T F F T .
ends

node flag_of_bool
in T F .
out F T T .
ends

node same_flags
in F T .
in F T .
ends

node same_flags
in F T .
in F F T .
faults Length 7

node the_check
in F T F T .
ends

node the_check
in F F T .
faults The 7

node the_check
in T .
faults The 7

# Items.

node dist int
in 4 5 6 .
in F F T T F T .
out 4 4 6 .
ends

node dist vec
in [1] [1] .
in F F T T .
out [1] [1] .
ends

node pack int
in T F T .
in 1 2 3 .
out 1 3 .
ends

node interleave int
in F T T .
in T F F T .
in 7 .
in 8 9 .
out 7 8 9 .
ends

# Groups.

node pack_groups
in T F .
in F F T F T .
out F F T .
ends

node interleave_groups
in F T T .
in T F F T .
in F F T .
in T F T .
out F F T T F T .
ends

# part({3,1,4,1,5,9}, {false,false,true,false,true,true,false,false,false,true})

node part_flags
in F F F F F F F F F F T .
in F F T F T T F F F T .
in F F F F F F T .
out F F F F T .
out F F T F T T F F F T .
ends

# The last part does not end, and an element is left.

node part_flags
in F T .
in F .
in F T .
out
out F
faults Part 7

node part_flags
in F T .
in T .
in F T .
out F
out T
faults Part 7

# An item of another kind is a fault, at whichever port it comes.

node flag_of_bool
in 1
out
faults Shape 7

node the_check
in F 1
faults Shape 7

node same_flags
in F
in 1
faults Shape 7

node concat_flags
in F
in u
out
faults Shape 7

node append_flags
in T
in 1
out
faults Shape 7

node pack int
in T
in T
out
faults Shape 7

node dist int
in 1
in 1
out
faults Shape 7

node dist int
in [1]
in F
out
faults Shape 7

node interleave int
in F
in
in u
in
out
faults Shape 7

node interleave_groups
in F
in
in 1
in
out
faults Shape 7

node pack_groups
in T
in 1
out
faults Shape 7

node part_flags
in F
in 1
in
out
out
faults Shape 7

# Integers over 64 bits pass.

node dist int
in 9223372036854775808 -170141183460469231731687303715884105728 .
in F T F F T .
out 9223372036854775808 -170141183460469231731687303715884105728 -170141183460469231731687303715884105728 .
ends

node pack int
in T F T .
in 9223372036854775808 2 170141183460469231731687303715884105727 .
out 9223372036854775808 170141183460469231731687303715884105727 .
ends

node interleave int
in F T T .
in T F F T .
in 170141183460469231731687303715884105727 .
in -9223372036854775809 -170141183460469231731687303715884105728 .
out 170141183460469231731687303715884105727 -9223372036854775809 -170141183460469231731687303715884105728 .
ends
";
