//! What a line says, and what it is refused for before any event.
ghost use Rattle.std.specs.Prelude.{◌≡◌, ◌++◌, [], codes, replicate};
ghost use Rattle.mt_plain.specs.Output.{output};
ghost use Rattle.mt_plain.specs.Script.{bad_line, line_too_long, read_line};

/// Each refusal of a line, once.
pub fn lines_are_refused_exactly()
    ensures no_name { output [] (codes "rule .t k.t\n") ≡ codes "refused N1 Empty\n" }
    ensures a_name_of_65_bytes { output [] (codes "keyspace " ++ replicate 65 97) ≡ codes "refused N2 TooLong\n" }
    ensures a_name_of_64_bytes { output [] (codes "keyspace " ++ replicate 64 97) ≡ codes "ok\n" }
    ensures a_byte_that_no_name_begins_with { output [] (codes "keyspace -a\nkeyspace a-\n")
        ≡ codes "refused N3 BadByte\nok\n" }
    ensures a_table_named_twice { output [] (codes "create w s g t,t\n") ≡ codes "refused N4 Repeated\n" }
    ensures a_name_of_a_stream_back { output [] (codes "create w_reverse s g t\n")
        ≡ codes "refused N5 ReservedSuffix\n" }
    ensures no_tablet_type { output [] (codes "rule t@master k.t\nrule t@replica k.t\n")
        ≡ codes "refused N6 BadType\nok\n" }
    ensures seventeen_tables { output [] (codes "create w s g a,b,c,d,e,f,g,h,i,j,k,l,m,n,o,p,q\n")
        ≡ codes "refused N7 TooMany\n" }
    ensures sixteen_tables { output [] (codes "create w s g a,b,c,d,e,f,g,h,i,j,k,l,m,n,o,p\n")
        ≡ codes "refused F1 NoKeyspace\n" }
    ensures a_target_without_a_keyspace { output [] (codes "rule t t\n") ≡ codes "refused N8 NoKeyspace\n" }
    ensures a_shard_that_is_no_range { output [] (codes "keyspace k -8\n") ≡ codes "refused N9 BadRange\n" }
    ensures a_stream_that_is_no_range { output [] (codes "advance w forward/8 0 1\n")
        ≡ codes "refused N9 BadRange\n" }
    ensures shards_that_leave_keys_out { output [] (codes "keyspace k -80\n") ≡ codes "refused N10 NotCovering\n" }
    ensures shards_that_cover_all_keys { output [] (codes "keyspace k -80,80-\n") ≡ codes "ok\n" }
    ensures a_name_of_no_table { output [] (codes "get t 1\n") ≡ codes "refused T2 NoTable\n" }
    ensures a_name_of_two_tables { output [] (codes "keyspace j\nkeyspace k\ntable j t\ntable k t\nget t 1\n")
        ≡ codes "ok\nok\nok\nok\nrefused T3 Ambiguous\n" }
    ensures no_command { output [] (codes "keyspaces k\n") ≡ codes "refused X1 BadLine\n" }
    ensures a_line_of_4097_bytes { read_line (replicate 4097 1) ≡ line_too_long }
    ensures a_line_of_4096_bytes { read_line (replicate 4096 1) ≡ bad_line }
{}

/// Words, numbers, and which of two faults of a line is told.
pub fn lines_are_read_exactly()
    ensures tabs_separate_words { output [] (codes "keyspace\tk\ntable\tk \tt\ninsert\tt\t1\ta\n\tget t\t1\t\n")
        ≡ codes "ok\nok\nok\nrow a\n" }
    ensures a_number_of_20_digits { output [] (codes "keyspace k\ntable k t\nget t 00000000000000000001\n")
        ≡ codes "ok\nok\nnone\n" }
    ensures a_number_of_21_digits { output [] (codes "keyspace k\ntable k t\nget t 000000000000000000001\n")
        ≡ codes "ok\nok\nrefused X1 BadLine\n" }
    ensures a_count_of_16_bits { output [] (codes "advance w forward 0 65535\nadvance w forward 0 65536\n")
        ≡ codes "refused F7 NoWorkflow\nrefused X1 BadLine\n" }
    ensures a_count_of_six_digits { output [] (codes "advance w forward 0 065535\n") ≡ codes "refused X1 BadLine\n" }
    ensures a_value_of_64_bytes { output [] (codes "keyspace k\ntable k t\ninsert t 1 " ++ replicate 64 97)
        ≡ codes "ok\nok\nok\n" }
    ensures a_value_of_65_bytes { output [] (codes "keyspace k\ntable k t\ninsert t 1 " ++ replicate 65 97)
        ≡ codes "ok\nok\nrefused X1 BadLine\n" }
    ensures a_word_too_many { output [] (codes "keyspace k - -\n") ≡ codes "refused X1 BadLine\n" }
    ensures bad_line_before_bad_name { output [] (codes "insert -a 1x v\n") ≡ codes "refused X1 BadLine\n" }
    ensures bad_byte_before_no_name { output [] (codes "table .k t\n") ≡ codes "refused N3 BadByte\n" }
    ensures bad_name_before_bad_shards { output [] (codes "keyspace -k 8\n") ≡ codes "refused N3 BadByte\n" }
    ensures bad_name_before_bad_range { output [] (codes "advance -w forward/8 0 1\n")
        ≡ codes "refused N3 BadByte\n" }
    ensures bad_name_before_look_up { output [] (codes "get a!b 1\n") ≡ codes "refused N3 BadByte\n" }
{}
