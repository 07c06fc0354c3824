use tree_growth::laws;

#[test]
fn the_laws_stand() {
    laws::chosen_is_place();
    laws::groups_are_sized();
    laws::insertion_adds_one();
    laws::insertion_keeps_sound();
    laws::load_is_sound();
    laws::load_keeps_objects();
    laws::partition_is_fair();
    laws::promoted_is_pair();
    laws::row_has_distances();
    laws::sound_has_entries();
}
