mod deeds;
mod desks;
