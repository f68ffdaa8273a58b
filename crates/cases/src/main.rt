// What document 01 has run, and the edges of the routines: `stdout` beside src/ is what it must write.
#![tactic(auto)]

mod costs;
mod files;
mod four;
mod show;
mod whole;

fn main(rt: HostRuntime) {
    whole::all(&rt);
    four::all(&rt);
    costs::all(&rt);
    files::all(&rt);
}
